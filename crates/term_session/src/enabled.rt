ghost use Rattle.std.specs.Prelude.{◌≡◌, ◌↔◌, ℕ, Contains, IfOk};
ghost use Rattle.std.specs.List.{filter};
ghost use Rattle.std.specs.List.Sorted.{IsStrictlyIncreasing};
ghost use Rattle.std.specs.Option.{is_some};
ghost use Rattle.behaviour_tree.specs.PartsView.{parts_of};
ghost use Rattle.session_calculus.specs.After.{HasEvent};
ghost use Rattle.session_forms.specs.Standing.{strands_in};
ghost use Rattle.term_session.specs.Asks as spec;
ghost use Rattle.term_session.specs.Configs.{config_view};

use crate::config::Config;
use crate::glance::{Glance, foretold};
use crate::needed::needed;
use behaviour_tree::{Program, Strands};
use session_forms::strands_of;
use session_values::Actor;
use sqlite_items::Items;
use std::alloc::{AllocError, Global};

/// The strands that have an event for some gift.
#[tactic(auto, using(crate::proofs::Needing::enabled_exactly, crate::proofs::Needing::enabled_rise))]
pub fn enabled(
    alloc: Global,
    config: &Config,
    program: &Program,
    service: u32,
) -> Result<Strands, AllocError>
    ensures exact { IfOk result
        (λ strands. (n : ℕ) → Contains strands n ↔ HasEvent (parts_of program.now) service (config_view config.now)
        n) }
    ensures rising { IfOk result IsStrictlyIncreasing }
{
    let standing = standing_in(alloc, config)?;
    let enabled = needing(alloc, &standing, config, program, service)?;
    Ok(enabled)
}

/// The strands that stand in the form of a session, each once and in rising order.
fn standing_in(alloc: Global, config: &Config) -> Result<Vec<u64>, AllocError>
    ensures rising { IfOk result (λ v. IsStrictlyIncreasing v.items) }
    ensures all { IfOk result
        (λ v. (n : ℕ) → Contains (strands_in 0 (config_view config.now).form) n → Contains v.items n) }
{
    let strands = strands_of(alloc, &config.form, 0)?;
    let mut standing = Vec::from_slice(alloc, strands.as_slice())?;
    standing.sort_unstable();
    standing.dedup();
    Ok(standing)
}

/// Those strands that need something.
fn needing(
    alloc: Global,
    strands: &[u64],
    config: &Config,
    program: &Program,
    service: u32,
) -> Result<Strands, AllocError>
    ensures { IfOk result
        (λ needing. needing ≡ filter
        (λ n. is_some (spec.needed (parts_of program.now) service (config_view config.now) n)) strands.now) }
{
    let mut needing = Items::new(alloc);
    for strand in strands {
        if needs(alloc, *strand, config, program, service)? {
            needing.push(*strand)?;
        }
    }
    Ok(needing)
}

/// Whether a strand needs something.
#[tactic(auto, using(crate::proofs::Foretelling::asks_some))]
fn needs(
    alloc: Global,
    strand: u64,
    config: &Config,
    program: &Program,
    service: u32,
) -> Result<bool, AllocError>
    ensures { IfOk result
        (λ b. b ≡ is_some (spec.needed (parts_of program.now) service (config_view config.now) strand)) }
{
    match foretold(config, strand) {
        Glance::Asks => Ok(true),
        Glance::Stores => Ok(true),
        Glance::Unknown => {
            let actor = Actor {
                program,
                service,
                strand,
            };
            Ok(needed(alloc, config, actor)?.is_some())
        }
    }
}
