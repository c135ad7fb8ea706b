mod hub;
mod lines;
mod lock;
mod machine;
mod printing;
mod race;
mod shared;
mod typing;
