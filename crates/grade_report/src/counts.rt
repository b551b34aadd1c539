//! How many wrong fuses have a verdict.

ghost use Rattle.std.specs.Prelude.{◌≡◌};
ghost use Rattle.grade_report.specs.Report.{count_of, finds, is_missed, is_refused, is_same};

use wrong_fuses::{Judged, Verdict};

/// Whether the vectors find it.
fn finds(verdict: &Verdict) -> bool
    ensures { result ≡ finds verdict.now }
{
    matches!(verdict, Verdict::Found(_))
}

/// Whether the chip is like the right one.
fn is_same(verdict: &Verdict) -> bool
    ensures { result ≡ is_same verdict.now }
{
    matches!(verdict, Verdict::Same)
}

/// Whether the vectors miss it.
fn is_missed(verdict: &Verdict) -> bool
    ensures { result ≡ is_missed verdict.now }
{
    matches!(verdict, Verdict::Missed)
}

/// Whether the chip isn't simulated.
fn is_refused(verdict: &Verdict) -> bool
    ensures { result ≡ is_refused verdict.now }
{
    matches!(verdict, Verdict::Refused(_) | Verdict::OtherMode)
}

/// How many the vectors find.
pub fn found(list: &[Judged]) -> usize
    ensures { result ≡ count_of finds list.now }
{
    list.iter().filter(|it| finds(&it.verdict)).count()
}

/// How many make a chip like the right one.
pub fn same(list: &[Judged]) -> usize
    ensures { result ≡ count_of is_same list.now }
{
    list.iter().filter(|it| is_same(&it.verdict)).count()
}

/// How many the vectors miss.
pub fn missed(list: &[Judged]) -> usize
    ensures { result ≡ count_of is_missed list.now }
{
    list.iter().filter(|it| is_missed(&it.verdict)).count()
}

/// How many make a chip that isn't simulated.
pub fn refused(list: &[Judged]) -> usize
    ensures { result ≡ count_of is_refused list.now }
{
    list.iter().filter(|it| is_refused(&it.verdict)).count()
}
