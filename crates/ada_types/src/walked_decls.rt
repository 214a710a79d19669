// What is left behind declarations that were walked.

use ada_scopes::scope::Scope;
use ada_static_rules::refusals::Refusal;

/// What can be used behind a declaration, the first refusal at its places, and whether it is one of objects that are tasks.
#[derive(Drop)]
pub(crate) struct WalkedDecl {
    pub scope: Scope,
    pub refusal: Option<Refusal>,
    pub of_tasks: bool,
}

/// What can be used behind several declarations, and the first refusal at their places.
#[derive(Drop)]
pub(crate) struct WalkedDecls {
    pub scope: Scope,
    pub refusal: Option<Refusal>,
}
