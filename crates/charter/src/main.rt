// A charter of thirty years: what was billed, paid, funded and drawn, and that the money adds up.
#![tactic(auto)]

mod calls;
mod days;
mod journal;
mod market;
mod month;
mod parties;
mod plan;
mod printing;
mod term;

fn main(rt: HostRuntime) -> anyhow::Result<()> {
    term::carry_through(&rt)
}
