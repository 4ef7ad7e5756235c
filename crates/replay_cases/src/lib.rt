// Tables of cases for replays.
#![tactic(auto)]

#[cfg(test)]
mod budgets;
#[cfg(test)]
mod build;
#[cfg(test)]
mod ends;
#[cfg(test)]
mod examples;
#[cfg(test)]
mod orders;
#[cfg(test)]
mod permits;
#[cfg(test)]
mod replays;
#[cfg(test)]
mod schedules;
#[cfg(test)]
mod steps;
