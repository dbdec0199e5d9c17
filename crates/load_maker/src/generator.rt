ghost use Rattle.std.specs.Prelude.{◌≡◌, IfOk, string_bytes};
ghost use Rattle.load_maker.specs.OrderService.{order_service};
ghost use Rattle.load_maker.specs.Lines.{lines, next, order, with_ends};

use crate::order_service::ORDER_SERVICE;
use jolie_trees::Text;
use std::alloc::{AllocError, Global};

/// The load of so many lines: the text of the order service, and the lines.
#[tactic(auto, unfolding(crate::specs::OrderService::order_service))]
pub fn make(alloc: Global, count: u32) -> Result<(Text, Text), AllocError>
    ensures program { IfOk result (λ load. load.0 ≡ order_service) }
    ensures lines { IfOk result (λ load. load.1 ≡ with_ends (lines count)) }
{
    let lines = lines_of(alloc, count)?;
    let program = Text::new(alloc, ORDER_SERVICE)?;
    Ok((program, lines))
}

/// The lines of a load of so many.
fn lines_of(alloc: Global, count: u32) -> Result<Text, AllocError>
    ensures { IfOk result (λ text. text ≡ with_ends (lines count)) }
{
    let mut text = String::new(alloc);
    let mut number = count;
    for id in 0..count {
        number = next(number);
        let line = line_of(alloc, id, number)?;
        text.push_str(line.as_str())?;
        text.push_str("\n")?;
    }
    Ok(Text::from_string(text))
}

/// The number after a number.
fn next(number: u32) -> u32
    ensures { result ≡ next number }
{
    ((u64::from(number) * 1_103_515_245 + 12_345) % 2_147_483_648) as u32
}

/// The line of an order by its number.
fn line_of(alloc: Global, id: u32, number: u32) -> Result<String, AllocError>
    ensures { IfOk result (λ line. string_bytes line ≡ order id number) }
{
    let pieces = 1 + number % 3;
    let price = 1 + number % 60;
    format!(in alloc;
        "{{\"id\":{id},\"jsonrpc\":\"2.0\",\"method\":\"order\",\"params\":\
        {{\"id\":\"{id}\",\"n\":{pieces},\"price\":{price},\"sku\":\"x\"}}}}"
    )
}
