//! The choice of a policy.

/// A call by the policy of a kind, in the place of its first type:
/// `by_policy!(sheet.policy() => simulate::<_, PerTask, Sheet>(alloc, sheet, sheet, mode, ticks))`.
#[macro_export]
macro_rules! by_policy {
    ($kind:expr => $call:ident::<_ $(, $more:ty)*>($($argument:expr),*)) => {
        match $kind {
            $crate::PolicyKind::Fp => $call::<$crate::Fp $(, $more)*>($($argument),*),
            $crate::PolicyKind::Edf => $call::<$crate::Edf $(, $more)*>($($argument),*),
            $crate::PolicyKind::Fifo => $call::<$crate::Fifo $(, $more)*>($($argument),*),
            $crate::PolicyKind::Gel => $call::<$crate::Gel $(, $more)*>($($argument),*),
            $crate::PolicyKind::Elf => $call::<$crate::Elf $(, $more)*>($($argument),*),
        }
    };
}
