//! The covers of enables, resets and presets.

ghost use Rattle.std.specs.Prelude.{true, IfOk};
ghost use Rattle.fit_plans.specs.Covered.{CanCover, IsCoverOf, control_function};

use crate::covering::Covering;
use crate::workspace::Workspace;
use bit_expr::{ExprId, Function};
use covers::Cube;
use std::alloc::{AllocError, Global};

impl<'a> Covering<'a> {
    /// The cover of a control; None if a list on the way would pass 1,024 products.
    pub fn control_cover(
        &self,
        space: &mut Workspace,
        bit: ExprId,
    ) -> Result<Option<Vec<Cube>>, AllocError>
        requires { CanCover self.now.vars self.now.net.now (control_function bit) }
        ensures { IfOk result (IsCoverOf self.now.vars self.now.turned self.now.net.now (control_function bit) true) }
    {
        let function = Function {
            one: bit,
            any: ExprId(0),
            complement: false,
        };
        self.cover(space, function, true)
    }
}
