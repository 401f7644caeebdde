// Trials of the planner, at any kind of entries. For each line of the input (α, ρ and priorities in key order) they print the blocks
// of the plan; then how many lists it plans as a second planner does, and the visits that planning counts for the longest lists.
#![tactic(auto)]

mod lists;
mod second;
mod shown;
pub mod tables;
pub mod trial;
mod trials;

use lists::generated;
use shown::ShownPlan;
use std::io::Read;
use tables::Tables;
use trial::Trial;
use trials::Trials;

// The most entries that are read of a line: one more than can be planned, so that a longer line is refused as well, and takes no
// memory.
const MOST_READ: usize = 2_001;

// α, ρ and priorities of a line, printed with the blocks of their plan.
fn show_plan<E: Trial>(rt: &HostRuntime, line: &str, tables: &mut Tables) -> anyhow::Result<()> {
    let mut numbers = line
        .split_whitespace()
        .filter_map(|word| word.parse::<u16>().ok());
    if let (Some(alpha), Some(rho)) = (numbers.next(), numbers.next()) {
        let entries = numbers
            .take(MOST_READ)
            .map(|priority| E::of(priority))
            .collect::<Vec<E>>(rt.alloc())?;
        match tables.plan(entries.as_slice(), usize::from(alpha), usize::from(rho)) {
            Some(extent) => {
                let shown = ShownPlan(tables.planned(extent));
                println!(rt; "{line} :{shown}")?;
            }
            None => println!(rt; "{line} : refused")?,
        }
    }
    Ok(())
}

// The visits that planning counts for a generated list.
fn show_visits<E: Trial>(
    rt: &HostRuntime,
    n: usize,
    limit: u32,
    alpha: usize,
    rho: usize,
    tables: &mut Tables,
) -> anyhow::Result<()> {
    let entries = generated::<E>(rt.alloc(), 1, n, limit)?;
    if let Some(extent) = tables.plan(entries.as_slice(), alpha, rho) {
        println!(rt;
            "alpha {alpha} rho {rho}: {n} entries with priorities below {limit} in {} blocks, {} visits",
            extent.blocks, extent.visits
        )?;
    }
    Ok(())
}

// All trials, at entries of the kind `E`. It has no clause, since none can say what is read and printed: what the two programs print
// is compared with what is written down beside them.
pub fn run<E: Trial>(rt: &HostRuntime) -> anyhow::Result<()> {
    let mut input = String::new(rt.alloc());
    rt.stdin().read_to_string(&mut input)?;
    let mut tables = Tables::new(rt.alloc())?;
    for line in input.lines() {
        show_plan::<E>(rt, line, &mut tables)?;
    }
    let mut trials = Trials::new(rt.alloc(), &mut tables);
    trials.all_short_lists::<E>()?;
    trials.generated_lists::<E>()?;
    println!(rt;
        "{} lists planned, {} unlike the second planner",
        trials.tried, trials.unlike
    )?;
    for n in [500, 1000, 2000] {
        show_visits::<E>(rt, n, 65_536, 10, 2, &mut tables)?;
        show_visits::<E>(rt, n, 65_536, 1, 1, &mut tables)?;
        show_visits::<E>(rt, n, 1, 1, 1, &mut tables)?;
    }
    Ok(())
}
