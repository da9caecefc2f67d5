// Tests of values in an arena: byte forms, calls that place values, and reads and writes through handles.
mod calls;
mod forms;
mod values;
