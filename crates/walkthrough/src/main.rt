// One month, from its interval records to invoices, a part payment and the draws on security.
#![tactic(auto)]

mod collection;
mod month;

fn main(rt: HostRuntime) -> anyhow::Result<()> {
    let charges = month::carry_out(&rt)?;
    collection::carry_out(&rt, charges)?;
    Ok(())
}
