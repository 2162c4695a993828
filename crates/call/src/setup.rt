// What stays as it is throughout a call.

// The job, a journal lent at its exact length; both ends' settings; and the pager list.
#[derive(Clone, Copy)]
pub(crate) struct Setup<'a> {
    pub job: &'a [u8],
    pub device: device::Settings,
    pub central: central::Settings,
    pub pagers: &'a [u32],
}
