// A capture of a cable, line by line: bytes are read as a frame, and words are written as one.
#![tactic(auto)]

mod hexadecimal;
mod packet;
pub mod shown;
pub mod translation;
mod vocabulary;
