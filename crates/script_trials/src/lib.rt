// Trials of scripts: lines with what each prints.
#![tactic(auto)]

#[cfg(test)]
mod forms;
#[cfg(test)]
mod played;
#[cfg(test)]
mod refusals;
#[cfg(test)]
mod stories;
#[cfg(test)]
mod told;
