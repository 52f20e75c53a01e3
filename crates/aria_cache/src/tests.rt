mod held;
mod mem;
mod putting;
