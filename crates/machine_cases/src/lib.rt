// Tables of cases for the program reader and the machine.
#![tactic(auto)]

#[cfg(test)]
mod reading;
#[cfg(test)]
mod running;
