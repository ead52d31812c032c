//! Executions whose threads meet, and jobs that count when they are let go.
mod drops;
mod meetings;
mod patient_gate;
