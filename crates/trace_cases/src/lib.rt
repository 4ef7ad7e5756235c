// Tables of cases for traces and trace files.
#![tactic(auto)]

#[cfg(test)]
mod drafts;
#[cfg(test)]
mod files;
