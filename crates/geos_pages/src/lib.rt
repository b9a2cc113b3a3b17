//! Pages to look at in a browser: a text or a VM file with what there is to say of it, each as one HTML file.
#![tactic(auto)]

mod explained_page;
mod explained_script;
mod map_page;
mod page;

pub use page::{Subject, html};
