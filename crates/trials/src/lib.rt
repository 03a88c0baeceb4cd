// Trials of whole banks: stories with known answers, every refusal, and buyers in great numbers over each kind of post; and of a lent row.
#![tactic(auto)]

#[cfg(test)]
mod buyers;
#[cfg(test)]
mod kinds;
#[cfg(test)]
mod refusals;
#[cfg(test)]
mod rows;
#[cfg(test)]
mod sizes;
#[cfg(test)]
mod stories;
#[cfg(test)]
mod watched;
