// A report, and whether the job was accepted: if not, the report is one STOP line. No `Result`, since the text is printed either way.
#[derive(Drop)]
pub struct Report {
    pub text: Vec<u8>,
    pub accepted: bool,
}
