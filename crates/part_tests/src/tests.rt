mod parts;
mod rows;
