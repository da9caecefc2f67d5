// Tests of the words `calls` and `gen`.
mod endings;
mod generated;
mod refused;
mod replies;
