/// The commands and their options, for a person whose words were not read. It ends with a line feed.
pub fn client_help() -> &'static str {
    "incusctl: expected one of these commands:\n\
     \n\
     list [FILTER]\n\
     \x20   prints the name and the status of each instance, or of those that the filter takes\n\
     launch NAME\n\
     \x20   makes an instance and starts it\n\
     start NAME\n\
     stop NAME\n\
     delete NAME\n\
     \x20   starts, stops or deletes an instance, and waits until that is done\n\
     wait ID\n\
     \x20   waits for an operation\n\
     cancel ID\n\
     \x20   cancels an operation\n\
     limits\n\
     \x20   prints what the project uses, and its limits\n\
     \n\
     and behind each of them --port N or --socket PATH, one of the two, with [--project NAME] and\n\
     [--format plain|json|table]. Options stand behind the command in any order, each at most once, as --name VALUE\n\
     or --name=VALUE. A port is 1 to 65535, with no sign and no zero in front. A PATH has 1 to 107 bytes. The project\n\
     is default where none is named. An ID is a UUID in lower case with hyphens.\n"
}
