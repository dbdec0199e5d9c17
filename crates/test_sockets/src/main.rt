//! Tables of what doors and wires over the sockets of this machine give. The guests of a row are sockets of this program
//! too, over the loopback, so that nothing here waits for anybody else.
#![tactic(auto)]

mod guests;
mod house;

use house::House;
use std::io;
use test_rows::{Row, run};

fn main(rt: HostRuntime) -> anyhow::Result<()> {
    run(&rt, expected, given)
}

/// What a row expects.
fn expected(rt: &HostRuntime, row: &Row<'_>) -> anyhow::Result<String> {
    Ok(row.text(rt.alloc(), "gives")?)
}

/// What the words of a row give, one for each.
fn given(rt: &HostRuntime, row: &Row<'_>) -> anyhow::Result<String> {
    let alloc = rt.alloc();
    let patience = row.number(alloc, "patience")?;
    let does = row.text(alloc, "does")?;
    let mut house = House::new(alloc, rt, patience, io::pipe(rt)?);
    let mut said = String::new(alloc);
    for word in does.as_str().split("; ") {
        if !said.is_empty() {
            said.push_str("; ")?;
        }
        said.push_str(house.follow(word)?.as_str())?;
    }
    Ok(said)
}
