// Tries the planner at priorities alone.
#![tactic(auto)]

fn main(rt: HostRuntime) -> anyhow::Result<()> {
    planner_trials::run::<u16>(&rt)
}
