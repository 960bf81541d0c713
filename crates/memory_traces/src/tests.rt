//! Tables of traces and their answers: the traces of one moment, and traces that grow.
mod grown;
mod judged;
mod judging;
mod newest;
mod table;
