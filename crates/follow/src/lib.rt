// Why messages were buffered: a script followed line by line on lent memory, in portions of any size.
#![tactic(auto)]

pub mod every;
pub mod one;
pub mod portion;
pub mod seen;
pub mod text;
pub mod waiting;
