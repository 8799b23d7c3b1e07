//! A filter is written as the text of a module.

use crate::error::{CodeError, CompileFault};
use crate::generator::Generator;
use crate::listing::{Listing, make_listing};
use crate::plan::Plan;
use crate::ranges::highest_of;
use author_text::place::Place;
use author_text::tree::Filter;
use life_state::State;
use std::alloc::Global;

/// The module of a filter, as it is written, and what its certificate says.
#[derive(Drop)]
pub struct Written {
    /// The text of the module, with the lines of the source in comments.
    pub text: Vec<u8>,
    /// The state before each instruction that is the first of a handler, or that one leads to.
    pub states: Vec<Option<State>>,
    /// The state between calls, before `init`.
    pub idle: State,
    /// The state between calls, from `init` on to the end of the request.
    pub ready: State,
    /// The instruction where data is treated, if the filter does something with it.
    pub data: Option<usize>,
}

/// What does not fit into a module, if something does not.
fn oversize(listing: &Listing) -> Option<CompileFault> {
    let count = listing.states.len();
    if 1024 < count {
        Some(CompileFault::TooLong(count))
    } else if 64 < listing.texts {
        Some(CompileFault::TooManyTexts(listing.texts))
    } else {
        None
    }
}

/// The generator for a filter; none where there is no memory.
fn generator_for(alloc: Global, filter: &Filter) -> Option<Generator> {
    let highest = highest_of(alloc, filter).ok()?;
    let plan = Plan::new(alloc, filter, highest).ok()?;
    Generator::new(alloc, filter, plan).ok()
}

/// The module of a filter. Nothing is proved of it: whoever takes it assembles the text, and asks the check.
pub fn write_module(alloc: Global, filter: &Filter) -> Result<Written, CodeError> {
    let Some(mut generator) = generator_for(alloc, filter) else {
        return Err(CodeError::NoMemory);
    };
    generator.begin(filter);
    let handlers = generator.handlers(filter);
    if let Some(fault) = generator.code.fault {
        return Err(fault);
    }
    let listing = make_listing(alloc, &generator, &handlers);
    if listing.is_failed {
        return Err(CodeError::NoMemory);
    }
    if let Some(fault) = oversize(&listing) {
        let place = Place { line: 1, column: 1 };
        return Err(CodeError::At { place, fault });
    }
    let Listing {
        text,
        states,
        data,
        ..
    } = listing;
    Ok(Written {
        text,
        states,
        idle: generator.idle_state(true),
        ready: generator.ready_state(),
        data,
    })
}
