mod counts;
mod lines;
mod objects;
mod page;
mod shown;
