// The caller knows the challenges and the rows to be whole and below p.
pub mod evaluations;
pub mod products;
