//! Which parts are good, and how wide the words are that they give.
ghost use Rattle.std.specs.Prelude.{◌≡◌, slice_get, ◌∷◌, [], IsTrue};
ghost use Rattle.netlist.specs.Formulas.{size, size_both, size_number, size_slice, size_concat};
ghost use Rattle.netlist.specs.Parts.{IsGoodPart, part_width, only_width};
ghost use Rattle.netlist.specs.Plans.{IsWidth};
ghost use Rattle.netlist_checks.specs.Widths.{IsFound};

use netlist::{
    Formula, MAX_BRANCHES, MAX_DEPTH, MAX_NUMBER_WIDTH, MAX_WIDTH, MIN_BRANCHES, MIN_DEPTH, Part,
};

/// Whether the numbers of a part are within their limits.
pub fn is_good_part(part: &Part) -> bool
    ensures { IsTrue result → IsGoodPart part.now }
{
    match part {
        Part::Stage { width } => is_width(*width),
        Part::Fifo { width, depth } => {
            is_width(*width) && MIN_DEPTH <= *depth && *depth <= MAX_DEPTH
        }
        Part::Fork { branches } => MIN_BRANCHES <= *branches && *branches <= MAX_BRANCHES,
        Part::AsFifo => true,
        Part::AsVr => true,
        Part::Map { body: _ } => true,
        Part::Scan { reset: _, body: _ } => true,
        Part::Join => true,
    }
}

/// Whether there are words so wide.
pub fn is_width(width: u32) -> bool
    ensures { IsTrue result → IsWidth width }
{
    1 <= width && width <= MAX_WIDTH
}

/// The width of the words that a part gives behind words of one width, where it is found. It is looked for where the operators of a
/// formula are `Not`, `Add`, `Slice` and `Concat`.
#[tactic(auto, using(crate::specs::Widths::found_only, crate::specs::Widths::found_same, crate::specs::Widths::found_nothing))]
pub fn width_behind_one(part: &Part, width: u32) -> Option<u32>
    ensures { IsFound result (part_width part.now (width ∷ [])) }
{
    match part {
        Part::Stage { width: asked } => only(*asked, Some(width)),
        Part::Fifo {
            width: asked,
            depth: _,
        } => only(*asked, Some(width)),
        Part::AsFifo => Some(width),
        Part::AsVr => Some(width),
        Part::Map { body } => formula_width(&[width], body),
        Part::Scan { reset, body } => {
            let state = reset.width();
            let given = formula_width(&[state, width], body);
            only(state, given)
        }
        Part::Fork { branches: _ } => Some(width),
        Part::Join => None,
    }
}

/// The width of the words that a part gives behind words of two widths, where it is found.
#[tactic(auto, using(crate::specs::Widths::found_same, crate::specs::Widths::found_nothing))]
pub fn width_behind_two(part: &Part, left: u32, right: u32) -> Option<u32>
    ensures { IsFound result (part_width part.now (left ∷ right ∷ [])) }
{
    match part {
        Part::Join => {
            if left <= MAX_WIDTH && right <= MAX_WIDTH - left {
                Some(left + right)
            } else {
                None
            }
        }
        _ => None,
    }
}

/// The width, where it is the one that is asked.
fn only(asked: u32, width: Option<u32>) -> Option<u32>
    ensures { result ≡ only_width asked width }
{
    match width {
        Some(width) => if width == asked { Some(asked) } else { None },
        None => None,
    }
}

/// The width of a formula over variables of these widths, where it is found. It calls itself as deep as the formula is nested.
#[tactic(auto, using(crate::specs::Widths::found_sum, crate::specs::Widths::found_slice, crate::specs::Widths::found_concat, crate::specs::Widths::found_same, crate::specs::Widths::found_nothing))]
fn formula_width(widths: &[u32], formula: &Formula) -> Option<u32>
    ensures { IsFound result (size widths.now formula.now) }
{
    match formula {
        Formula::Var(i) => variable_width(widths, *i),
        Formula::Const(word) => Some(word.width()),
        Formula::Not(a) => formula_width(widths, a.get()),
        Formula::Add(a, b) => {
            let a = formula_width(widths, a.get());
            let b = formula_width(widths, b.get());
            sum(a, b)
        }
        Formula::Slice { of, high, low } => {
            let of = formula_width(widths, of.get());
            slice(of, *high, *low)
        }
        Formula::Concat {
            high,
            low,
            first: _,
        } => {
            let high = formula_width(widths, high.get());
            let low = formula_width(widths, low.get());
            concat(high, low)
        }
        _ => None,
    }
}

/// The width of a variable.
fn variable_width(widths: &[u32], variable: u32) -> Option<u32>
    ensures { result ≡ slice_get widths.now variable }
{
    widths.get(variable as usize).copied()
}

/// The width of a sum.
fn sum(a: Option<u32>, b: Option<u32>) -> Option<u32>
    ensures { result ≡ size_number (size_both a b) }
{
    number(both(a, b))
}

/// The width that both have.
fn both(a: Option<u32>, b: Option<u32>) -> Option<u32>
    ensures { result ≡ size_both a b }
{
    match a {
        None => None,
        Some(a) => match b {
            None => None,
            Some(b) => if a == b { Some(a) } else { None },
        },
    }
}

/// The width, where it is one of numbers.
fn number(a: Option<u32>) -> Option<u32>
    ensures { result ≡ size_number a }
{
    match a {
        None => None,
        Some(width) => if width <= MAX_NUMBER_WIDTH {
            Some(width)
        } else {
            None
        },
    }
}

/// The width of a part of a value.
fn slice(of: Option<u32>, high: u32, low: u32) -> Option<u32>
    ensures { result ≡ size_slice of high low }
{
    match of {
        None => None,
        Some(width) => if low <= high && high < width {
            Some(high - low + 1)
        } else {
            None
        },
    }
}

/// The width of two values joined.
fn concat(high: Option<u32>, low: Option<u32>) -> Option<u32>
    ensures { result ≡ size_concat high low }
{
    match high {
        None => None,
        Some(high) => match low {
            None => None,
            Some(low) => {
                if high <= MAX_WIDTH && low <= MAX_WIDTH - high {
                    Some(high + low)
                } else {
                    None
                }
            }
        },
    }
}
