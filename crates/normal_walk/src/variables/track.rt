// The variables of a unit, on the way through its statements.

use ada_tree::Decl;
use normal_lookups::names::NormalNames;

/// The names of the normal form so far, and the declarations of the variables of the unit that is gone through.
#[derive(Drop)]
pub struct Track {
    pub names: NormalNames,
    pub decls: Vec<Decl>,
}
