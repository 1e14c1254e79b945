use aso_num::Status;

/// What is printed, and the status with which the work ends.
#[derive(Debug, Drop)]
pub struct Answer {
    pub status: Status,
    pub text: Vec<u8>,
}
