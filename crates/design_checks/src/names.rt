//! What is kept of each name: its first refused use, by the extension that it is with, and what its positions are.

ghost use Rattle.std.specs.Prelude.{◌≡◌, get_or};
ghost use Rattle.design_checks.specs.Prelude.{Context, term_named};
ghost use Rattle.design_checks.specs.{Knows, no_use, read_of, use_under, uses_of};

use crate::front::Positions;
use crate::rule::UseRule;
use abel_tree::Extension;
use set_expr::Scope;

/// What is kept of a name: for each extension the first signal whose use is refused if the name is with it, and what
/// the positions of its value are.
#[derive(Clone, Copy, PartialEq, Eq)]
pub(crate) struct NameUses {
    pub(crate) bare: Option<usize>,
    pub(crate) q: Option<usize>,
    pub(crate) fb: Option<usize>,
    pub(crate) pin: Option<usize>,
    pub(crate) clk: Option<usize>,
    pub(crate) oe: Option<usize>,
    pub(crate) ar: Option<usize>,
    pub(crate) sp: Option<usize>,
    pub(crate) d: Option<usize>,
    pub(crate) positions: Positions,
}

impl NameUses {
    /// Of no signal.
    pub(crate) fn none() -> NameUses
        ensures { result ≡ no_use }
    {
        NameUses {
            bare: None,
            q: None,
            fb: None,
            pin: None,
            clk: None,
            oe: None,
            ar: None,
            sp: None,
            d: None,
            positions: Positions::other(),
        }
    }

    /// The first signal whose use is refused if the name is with this extension.
    fn under(&self, extension: Option<Extension>) -> Option<usize>
        ensures { result ≡ use_under self.now extension }
    {
        match extension {
            None => self.bare,
            Some(Extension::Q) => self.q,
            Some(Extension::Fb) => self.fb,
            Some(Extension::Pin) => self.pin,
            Some(Extension::Clk) => self.clk,
            Some(Extension::Oe) => self.oe,
            Some(Extension::Ar) => self.ar,
            Some(Extension::Sp) => self.sp,
            Some(Extension::D) => self.d,
        }
    }
}

/// What is kept of the names of a source, or of the first of them, in the order of the names, if a rule is asked of
/// each use.
#[derive(Clone, Copy)]
pub(crate) struct KeptUses<'a, 'n> {
    pub(crate) rule: UseRule,
    pub(crate) scope: &'a Scope<'n>,
    pub(crate) list: &'a [NameUses],
}

impl<'a, 'n> KeptUses<'a, 'n> {
    /// What is kept of the name with this number, if it is one of these.
    fn at(&self, number: usize) -> NameUses
        ensures { result ≡ get_or self.now.list.now number no_use }
    {
        if number < self.list.len() {
            self.list[number]
        } else {
            NameUses::none()
        }
    }

    /// What is kept of the name with this text; what isn't one of these names represents no signal.
    pub(crate) fn get(&self, text: &[u8]) -> NameUses
        ensures { (d : Context) → Knows d self.now
            → result ≡ uses_of self.now.rule d (term_named d.known text.now) }
    {
        match self.scope.get(text) {
            None => NameUses::none(),
            Some(name) => self.at(name.number),
        }
    }

    /// The first signal whose use is refused if the name is with this extension.
    pub(crate) fn read(&self, text: &[u8], extension: Option<Extension>) -> Option<usize>
        ensures { (d : Context) → Knows d self.now
            → result ≡ read_of self.now.rule d (term_named d.known text.now) extension }
    {
        self.get(text).under(extension)
    }
}
