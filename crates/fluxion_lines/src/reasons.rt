//! Why a line can't be read.
ghost use Rattle.std.specs.Prelude.{◌≡◌, ◌++◌, codes, IfOk};
ghost use Rattle.fluxion_lines.specs.Reasons.{shape_reason, spec_reason};

use flux_defs::Text;
use jobspec_v1::SpecFault;
use json_fields::field_word;
use need_shape::ShapeFault;
use std::alloc::{AllocError, Global};
use text_forms::push_bytes;

/// A word, and what follows it.
fn two(alloc: Global, word: &[u8], rest: &[u8]) -> Result<Text, AllocError>
    ensures { IfOk result (λ text. text ≡ word.now ++ rest.now) }
{
    let mut text = Vec::from_slice(alloc, word)?;
    push_bytes(&mut text, rest)?;
    Ok(Text::of_vec(text))
}

/// A word, and two more with a space between them.
fn three(alloc: Global, word: &[u8], first: &[u8], second: &[u8]) -> Result<Text, AllocError>
    ensures { IfOk result (λ text. text ≡ word.now ++ first.now ++ codes " " ++ second.now) }
{
    let mut text = Vec::from_slice(alloc, word)?;
    push_bytes(&mut text, first)?;
    push_bytes(&mut text, b" ")?;
    push_bytes(&mut text, second)?;
    Ok(Text::of_vec(text))
}

fn shape_reason(alloc: Global, fault: &ShapeFault) -> Result<Text, AllocError>
    ensures { IfOk result (λ text. text ≡ shape_reason fault.now) }
{
    match fault {
        ShapeFault::SameSiblings { kind } => two(alloc, b"shape same ", kind.bytes()),
        ShapeFault::NestedSiblings { upper, lower } => {
            three(alloc, b"shape nested ", upper.bytes(), lower.bytes())
        }
        ShapeFault::HeldPool { kind } => two(alloc, b"shape held ", kind.bytes()),
        ShapeFault::PoolWith { kind } => two(alloc, b"shape with ", kind.bytes()),
        ShapeFault::CountLimit => Text::of(alloc, b"shape count"),
        ShapeFault::Memory => Text::of(alloc, b"memory"),
    }
}

/// What is wrong with a jobspec, as a reason.
pub(crate) fn spec_reason(alloc: Global, fault: &SpecFault) -> Result<Text, AllocError>
    ensures { IfOk result (λ text. text ≡ spec_reason fault.now) }
{
    match fault {
        SpecFault::NotJson => Text::of(alloc, b"json"),
        SpecFault::Field { path, fault } => three(
            alloc,
            b"field ",
            path.bytes(),
            field_word(*fault).as_bytes(),
        ),
        SpecFault::Version => Text::of(alloc, b"version"),
        SpecFault::Form => Text::of(alloc, b"form"),
        SpecFault::Label { path } => two(alloc, b"label ", path.bytes()),
        SpecFault::Task { path } => two(alloc, b"task ", path.bytes()),
        SpecFault::Shape(fault) => shape_reason(alloc, fault),
        SpecFault::Constraint { path } => two(alloc, b"constraint ", path.bytes()),
        SpecFault::NotInProfile { path } => two(alloc, b"profile ", path.bytes()),
        SpecFault::Memory => Text::of(alloc, b"memory"),
    }
}
