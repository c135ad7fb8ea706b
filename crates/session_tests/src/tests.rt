//! Tests of races and of their certificates. Rows are texts and numbers alone. Single journals are tested by the worked
//! cases of `cases`.
mod asking;
mod certificate;
mod ends;
mod faults;
mod gates;
mod keyboards;
mod meeting;
mod pieces;
mod printed;
mod reads;
mod standing;
