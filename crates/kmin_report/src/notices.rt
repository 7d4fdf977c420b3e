//! The notices of configuration files.
ghost use Rattle.std.specs.Prelude.{◌≡◌, map};
ghost use Rattle.kc_dotconfig_model.specs.between.Notices.{notice_pair};
ghost use Rattle.kmin_report.specs.Reports.{tree_notice_line};
ghost use Rattle.kmin_report.specs.StandardError.{TakesLines};

use crate::message::Message;
use crate::messages::Messages;
use kc_dotconfig_model::Notice;
use kc_tree::Tree;

/// Reports the notices of a configuration file that is read over this tree.
pub fn report_notices<E: Messages>(path: &str, notices: &[Notice], tree: &Tree, err: &mut E)
    ensures { TakesLines (E.taken err.old) (E.failures err.old) (map (λ notice. tree_notice_line tree.now.tree path.now (notice_pair notice)) notices.now) (E.taken err.new) (E.failures err.new) }
{
    for notice in notices {
        let Notice { line, kind } = *notice;
        err.write_report(Message::Notice {
            path,
            line,
            kind,
            tree,
        });
    }
}
