//! What routines may do to what is not their own, and whether that is granted.
//!
//! `specs/Effects.antt` has the effects of one instruction, `specs/Routines.antt` those of a routine with the routines that
//! it calls, and `specs/Grants.antt` what it means that an image does only what was granted.
#![tactic(auto)]

mod effect;
mod effects;
mod granted;
mod here;
mod routines;

pub use effect::Effect;
pub use effects::Effects;
pub use granted::{Excess, Granted, grant};
pub use here::effects_at;
pub use routines::{EffectTable, effects_of};
