//! Whether a span lies in a window.
ghost use Rattle.std.specs.Prelude.{◌≡◌, ◌↔◌, ◌≤◌, true, false, nat_le, nat_lt, Contains, IsTrue, length};
ghost use Rattle.std.specs.List.Sorted.{IsPartitionPoint};
ghost use Rattle.taxi_base.specs.declared.rows.Span.{Span};
ghost use Rattle.taxi_base.specs.Windows.{AreApart, IsPart};

use taxi_base::Span;

/// Whether a span is part of one of some windows.
pub fn is_inside_one(windows: &[Span], span: Span) -> bool
    requires { AreApart 0 windows.now }
    ensures { IsTrue result ↔ ((w : Span) × Contains windows.now w × IsPart span w) }
{
    match windows.get(windows_before(windows, span)) {
        Some(found) => begins_by(*found, span),
        None => false,
    }
}

/// How many windows end before a span does.
fn windows_before(windows: &[Span], span: Span) -> usize
    requires { AreApart 0 windows.now }
    ensures few { result ≤ length windows.now }
    ensures point { IsPartitionPoint (λ w. nat_lt w.until span.until ≡ true) (λ w. nat_lt w.until span.until ≡ false) windows.now result }
{
    windows.partition_point(|w| w.until < span.until)
}

fn begins_by(window: Span, span: Span) -> bool
    ensures { result ≡ nat_le window.from span.from }
{
    window.from <= span.from
}
