// Byte forms of numbers, of bool, of char and of ().
mod bytes;
mod non_zero_signed;
mod non_zero_unsigned;
mod plain;
mod signed;
mod unsigned;
