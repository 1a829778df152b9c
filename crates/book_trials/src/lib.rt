//! Trials of calls below the program: filter rules, books and the scheduler of one thread with limits and lines that
//! the program doesn't give them, and a history of clients on threads beside the same one played by one thread.
#![tactic(auto)]

#[cfg(test)]
mod books;
#[cfg(test)]
mod filters;
#[cfg(test)]
mod plays;
#[cfg(test)]
mod replayed;
#[cfg(test)]
mod scheduler;
