//! What the code of the statements of a body is made with.
use spl_gen_expr::Scope;
use spl_landing_maps::Landing;
use spl_operations::spl_spots::NameMap;

/// The scope of a body, its labels, and the mark of its way out.
#[derive(Clone, Copy, Debug)]
pub struct Context<'t> {
    pub scope: &'t Scope<'t>,
    pub landings: &'t NameMap<Landing>,
    pub leave: usize,
}
