// What is printed of a file, from what was worked out by hand.
mod failing;
mod files;
mod long;
