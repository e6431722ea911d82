//! Real threads: turns in parallel, a failed thread that stops all, runs that end; and the turns of
//! two cores on one thread, in a chosen order.

mod ending;
mod meeting;
mod plans;
mod refusing;
mod stages;
mod stepping;
mod texts;
