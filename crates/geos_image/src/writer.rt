//! The bytes that encode an image.

ghost use Rattle.std.specs.Prelude.{◌≡◌, ◌++◌, OnOk, IfOk, map};
ghost use Rattle.std.specs.List.{flat_map, All};
ghost use Rattle.geos_image.specs.Spelling.{word, long, instr, slot_code, pointer, pairs_byte, row, potential, routine, given, told, rest, spelling};
ghost use Rattle.geos_image.specs.Ranges.{IsWord, PointerFits, RowFits, GivenFits, PotentialFits, RoutineFits, PointFits};
ghost use Rattle.geos_image.specs.Reading.{image_at};

use crate::image::Image;
use crate::instr::Instr;
use crate::point::Point;
use crate::potential::Potential;
use crate::routine::Routine;
use crate::row::{Pointer, Row, SlotState};
use byteorder::{ByteOrder, LittleEndian};
use std::alloc::{AllocError, Global};

fn put_word(out: &mut Vec<u8>, n: u16) -> Result<(), AllocError>
    ensures { OnOk result (out.new.items ≡ out.old.items ++ word n) }
{
    let mut bytes = [0; 2];
    LittleEndian::write_u16(&mut bytes, n);
    out.extend_from_slice(&bytes)
}

fn put_long(out: &mut Vec<u8>, n: u32) -> Result<(), AllocError>
    ensures { OnOk result (out.new.items ≡ out.old.items ++ long n) }
{
    let mut bytes = [0; 4];
    LittleEndian::write_u32(&mut bytes, n);
    out.extend_from_slice(&bytes)
}

fn put_instr(out: &mut Vec<u8>, i: &Instr) -> Result<(), AllocError>
    ensures { OnOk result (out.new.items ≡ out.old.items ++ instr i.now) }
{
    out.extend_from_slice(&[i.opcode.code(), i.a, i.b, i.c, i.d, 0])?;
    put_word(out, i.imm)?;
    put_word(out, i.target)
}

fn put_pointer(out: &mut Vec<u8>, p: &Option<Pointer>) -> Result<(), AllocError>
    ensures value { OnOk result (out.new.items ≡ out.old.items ++ pointer p.now) }
    ensures fits { OnOk result (PointerFits p.now) }
{
    match p {
        None => out.extend_from_slice(&[0xff, 0, 0, 0]),
        Some(p) => {
            out.extend_from_slice(&[p.slot, 0])?;
            put_word(out, p.least)
        }
    }
}

fn pairs_byte(pairs: &[bool; 6]) -> u8
    ensures { result ≡ pairs_byte pairs.now }
{
    let [s0s1, s0s2, s0s3, s1s2, s1s3, s2s3] = *pairs;
    u8::from(s0s1)
        + 2 * u8::from(s0s2)
        + 4 * u8::from(s0s3)
        + 8 * u8::from(s1s2)
        + 16 * u8::from(s1s3)
        + 32 * u8::from(s2s3)
}

fn put_bounds(out: &mut Vec<u8>, bounds: &[u16; 8]) -> Result<(), AllocError>
    ensures value { OnOk result (out.new.items ≡ out.old.items ++ flat_map word bounds.now) }
    ensures fits { OnOk result (All IsWord bounds.now) }
{
    for n in bounds {
        put_word(out, *n)?;
    }
    Ok(())
}

fn put_slots(out: &mut Vec<u8>, slots: &[SlotState; 4]) -> Result<(), AllocError>
    ensures { OnOk result (out.new.items ≡ out.old.items ++ map slot_code slots.now) }
{
    let [s0, s1, s2, s3] = *slots;
    out.extend_from_slice(&[s0.code(), s1.code(), s2.code(), s3.code()])
}

fn put_pointers(out: &mut Vec<u8>, pointers: &[Option<Pointer>; 4]) -> Result<(), AllocError>
    ensures value { OnOk result (out.new.items ≡ out.old.items ++ flat_map pointer pointers.now) }
    ensures fits { OnOk result (All PointerFits pointers.now) }
{
    for p in pointers {
        put_pointer(out, p)?;
    }
    Ok(())
}

fn put_row(out: &mut Vec<u8>, r: &Row) -> Result<(), AllocError>
    ensures value { OnOk result (out.new.items ≡ out.old.items ++ row r.now) }
    ensures fits { OnOk result (RowFits r.now) }
{
    put_bounds(out, &r.bounds)?;
    put_slots(out, &r.slots)?;
    put_pointers(out, &r.pointers)?;
    out.extend_from_slice(&[pairs_byte(&r.pairs), 0])
}

fn put_potential(out: &mut Vec<u8>, p: &Potential) -> Result<(), AllocError>
    ensures value { OnOk result (out.new.items ≡ out.old.items ++ potential p.now) }
    ensures fits { OnOk result (PotentialFits p.now) }
{
    put_long(out, p.constant)?;
    for n in &p.coefficients {
        put_long(out, *n)?;
    }
    Ok(())
}

fn put_routine(out: &mut Vec<u8>, r: &Routine) -> Result<(), AllocError>
    ensures value { OnOk result (out.new.items ≡ out.old.items ++ routine r.now) }
    ensures fits { OnOk result (RoutineFits r.now) }
{
    out.extend_from_slice(&r.name)?;
    out.extend_from_slice(&[u8::from(r.public), 0])?;
    put_word(out, r.count)?;
    put_long(out, r.budget)?;
    put_row(out, &r.entry)?;
    put_row(out, &r.exit)
}

fn put_routines(out: &mut Vec<u8>, routines: &[Routine]) -> Result<(), AllocError>
    ensures value { OnOk result (out.new.items ≡ out.old.items ++ flat_map routine routines.now) }
    ensures fits { OnOk result (All RoutineFits routines.now) }
{
    for r in routines {
        put_routine(out, r)?;
    }
    Ok(())
}

fn put_instrs(out: &mut Vec<u8>, points: &[Point]) -> Result<(), AllocError>
    ensures { OnOk result (out.new.items ≡ out.old.items ++ flat_map (λ point. instr point.instr) points.now) }
{
    for point in points {
        put_instr(out, &point.instr)?;
    }
    Ok(())
}

fn put_given_row(out: &mut Vec<u8>, r: &Option<Row>) -> Result<(), AllocError>
    ensures value { OnOk result (out.new.items ≡ out.old.items ++ given r.now) }
    ensures fits { OnOk result (GivenFits r.now) }
{
    match r {
        None => Ok(()),
        Some(r) => put_row(out, r),
    }
}

fn put_entry(out: &mut Vec<u8>, point: &Point) -> Result<(), AllocError>
    ensures value { OnOk result (out.new.items ≡ out.old.items ++ told point.now) }
    ensures fits { OnOk result (PointFits point.now) }
{
    put_given_row(out, &point.row)?;
    put_potential(out, &point.potential)
}

fn put_entries(out: &mut Vec<u8>, points: &[Point]) -> Result<(), AllocError>
    ensures value { OnOk result (out.new.items ≡ out.old.items ++ flat_map told points.now) }
    ensures fits { OnOk result (All PointFits points.now) }
{
    for point in points {
        put_entry(out, point)?;
    }
    Ok(())
}

fn put_potentials(out: &mut Vec<u8>, points: &[Point]) -> Result<(), AllocError>
    ensures value { OnOk result (out.new.items ≡ out.old.items ++ flat_map (λ point. potential point.potential) points.now) }
    ensures fits { OnOk result (All (λ point. PotentialFits point.potential) points.now) }
{
    for point in points {
        put_potential(out, &point.potential)?;
    }
    Ok(())
}

fn put_given_rows(out: &mut Vec<u8>, points: &[Point]) -> Result<(), AllocError>
    ensures value { OnOk result (out.new.items ≡ out.old.items ++ flat_map (λ point. given point.row) points.now) }
    ensures fits { OnOk result (All (λ point. GivenFits point.row) points.now) }
{
    for point in points {
        put_given_row(out, &point.row)?;
    }
    Ok(())
}

fn put_rest(out: &mut Vec<u8>, keyed: bool, points: &[Point]) -> Result<(), AllocError>
    ensures value { OnOk result (out.new.items ≡ out.old.items ++ rest keyed points.now) }
    ensures fits { OnOk result (All PointFits points.now) }
{
    if keyed {
        put_potentials(out, points)?;
        put_given_rows(out, points)
    } else {
        put_entries(out, points)
    }
}

/// The bytes that encode the image: reading them gives the image again.
pub fn write(alloc: Global, image: &Image) -> Result<Vec<u8>, AllocError>
    ensures value { IfOk result (λ v. v.items ≡ spelling image.now) }
    ensures only { IfOk result (λ v. image_at v.items ≡ Ok image.now) }
{
    let mut out = Vec::new(alloc);
    out.extend_from_slice(b"GRT1")?;
    put_word(&mut out, image.version())?;
    put_word(&mut out, image.count())?;
    put_routines(&mut out, &image.routines)?;
    put_instrs(&mut out, &image.points)?;
    put_rest(&mut out, image.keyed, &image.points)?;
    Ok(out)
}
