//! Equal expressions.

ghost use Rattle.std.specs.Prelude.{◌≡◌, IfOk};

use crate::expressions::{Expr, Member};
use crate::words::Word;
use pld_base::{Boxed, ListOf, NameText, OutOfMemory};
use std::alloc::Global;

impl Word {
    /// An equal word.
    pub fn copy(&self, alloc: Global) -> Result<Word, OutOfMemory>
        ensures { IfOk result (λ w. w ≡ self.now) }
    {
        Ok(Word {
            text: NameText::new(alloc, self.text.bytes())?,
            place: self.place,
        })
    }
}

impl Member {
    /// An equal member.
    #[cycle(copies)]
    pub fn copy(&self, alloc: Global) -> Result<Member, OutOfMemory>
        ensures { IfOk result (λ m. m ≡ self.now) }
    {
        match self {
            Member::One(expr) => Ok(Member::One(expr.copy(alloc)?)),
            Member::Span { first, last } => {
                Ok(Member::Span {
                    first: first.copy(alloc)?,
                    last: last.copy(alloc)?,
                })
            }
        }
    }
}

impl Expr {
    /// An equal expression. Calls go as deep as the nestings, however many operators are in a row.
    #[cycle(copies)]
    pub fn copy(&self, alloc: Global) -> Result<Expr, OutOfMemory>
        ensures { IfOk result (λ e. e ≡ self.now) }
    {
        let mut links = Vec::new(alloc);
        let mut first = self;
        'down: while let Expr::Binary {
            sign,
            place,
            left,
            right,
        } = first
        {
            links.push((*sign, *place, right.get()))?;
            first = left.get();
        }
        let mut whole = first.copy_level(alloc)?;
        'up: while let Some((sign, place, right)) = links.pop() {
            let left = Boxed::new(alloc, whole)?;
            let right = Boxed::new(alloc, right.copy(alloc)?)?;
            whole = Expr::Binary {
                sign,
                place,
                left,
                right,
            };
        }
        Ok(whole)
    }

    /// An equal expression, by copies of its parts.
    #[cycle(copies)]
    fn copy_level(&self, alloc: Global) -> Result<Expr, OutOfMemory>
        ensures { IfOk result (λ e. e ≡ self.now) }
    {
        match self {
            Expr::Number(number) => Ok(Expr::Number(*number)),
            Expr::Special { letter, place } => {
                Ok(Expr::Special {
                    letter: *letter,
                    place: *place,
                })
            }
            Expr::Name { word, extension } => {
                Ok(Expr::Name {
                    word: word.copy(alloc)?,
                    extension: *extension,
                })
            }
            Expr::Set {
                place,
                members,
                extension,
            } => {
                let mut list = Vec::new(alloc);
                for member in members.as_slice() {
                    list.push(member.copy(alloc)?)?;
                }
                Ok(Expr::Set {
                    place: *place,
                    members: ListOf::from_vec(list),
                    extension: *extension,
                })
            }
            Expr::Paren { place, inner } => {
                let inner = Boxed::new(alloc, inner.get().copy(alloc)?)?;
                Ok(Expr::Paren {
                    place: *place,
                    inner,
                })
            }
            Expr::Unary { sign, place, inner } => {
                let inner = Boxed::new(alloc, inner.get().copy(alloc)?)?;
                Ok(Expr::Unary {
                    sign: *sign,
                    place: *place,
                    inner,
                })
            }
            Expr::Binary {
                sign,
                place,
                left,
                right,
            } => {
                let left = Boxed::new(alloc, left.get().copy(alloc)?)?;
                let right = Boxed::new(alloc, right.get().copy(alloc)?)?;
                Ok(Expr::Binary {
                    sign: *sign,
                    place: *place,
                    left,
                    right,
                })
            }
        }
    }
}
