// What is asked of graphs, and of faults.
mod faults;
mod graphs;
