// A tour of replays: replays the tour's trace under schedulers and by permits, and prints each thing it did.
#![tactic(auto)]

mod replaying;

fn main(rt: HostRuntime) -> anyhow::Result<()> {
    replaying::replays(&rt)
}
