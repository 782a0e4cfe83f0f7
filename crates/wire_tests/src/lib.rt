//! Tests of what comes over the wire: no part of the program.
#![tactic(auto)]

#[cfg(test)]
mod answers;
#[cfg(test)]
mod ends;
#[cfg(test)]
mod multipart;
#[cfg(test)]
mod replies;
#[cfg(test)]
mod reply_reading;
