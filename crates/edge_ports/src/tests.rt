// Each adapter over real files. Objects in memory have clauses for all that they do, and run in
// `top_tests`.
mod adapters;
mod file_shelf;
