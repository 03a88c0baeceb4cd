// Lines as people write them: kept up to a limit, cut into fields, and read as words and numbers.
#![tactic(auto)]

pub mod field;
pub mod line;
pub mod numeral;
pub mod word;
