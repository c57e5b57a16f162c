//! What no contract says: that commands succeed where there is memory, at a concrete type, and that
//! the examples come out as they should.

mod adding;
mod asking;
mod filling;
mod planning;
mod removing;
mod running;
mod support;
