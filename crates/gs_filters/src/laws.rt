// Laws of built-in operations and of the link over them.
ghost use Rattle.gs_filters.specs.Filters.{DigestIsText};
ghost use Rattle.gs_filters.specs.Inside.{FailuresAreCounted, FailuresAreLawful};

/// Whatever the link tells, it never refused a start, and each job that failed is one to which the
/// law gives no outputs that fit its places. Its count is that of these failures.
pub fn failures_are_lawful()
    ensures lawful { FailuresAreLawful }
    ensures counted { FailuresAreCounted }
{}

/// A digest in hexadecimal is always a string, so `digest` gives one of any file.
pub fn digest_is_a_string()
    ensures { DigestIsText }
{}
